mod hexadecimal;
mod items;
mod limits;
mod lines;
mod numbers;
mod pieces;
