mod draining;
mod keeping;
mod networks;
mod solving;
