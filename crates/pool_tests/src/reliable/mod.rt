mod keeping;
mod packing;
