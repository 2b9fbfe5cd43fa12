mod arithmetic;
mod numerals;
mod orders;
