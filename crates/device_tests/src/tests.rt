// Ports, pages and a cache, beside what they are to do.
mod cache;
mod ports;
mod sparse;
