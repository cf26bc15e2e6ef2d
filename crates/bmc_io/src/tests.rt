mod files;
mod memory;
mod streams;
