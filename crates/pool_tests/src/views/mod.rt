mod following;
mod views;
