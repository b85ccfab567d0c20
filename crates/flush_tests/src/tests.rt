// Worked graphs with their device calls, every call failing in turn, and many graphs beside a plain program.
mod listed;
mod own;
mod plain;
mod random;
mod rig;
mod steps;
mod worked;
