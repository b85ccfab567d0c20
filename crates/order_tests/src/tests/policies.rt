mod boxed;
mod kinds;
mod own;
