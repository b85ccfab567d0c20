mod bench;
mod faults;
mod images;
mod twice;
mod whole;
