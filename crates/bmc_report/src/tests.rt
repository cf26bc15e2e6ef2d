mod changes;
mod refusals;
mod rows;
