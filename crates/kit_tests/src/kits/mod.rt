mod made;
mod read;
