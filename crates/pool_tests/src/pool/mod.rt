mod hearing;
mod values;
