// The entries of an image's tables, and calls that read and set them.
mod counts;
mod layout;
mod prints;
mod slots;
