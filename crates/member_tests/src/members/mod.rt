mod absorbed;
mod alone;
mod imaged;
mod lost;
mod members;
mod restored;
