// Worked lists of calls, some beside a plain program.
mod births;
mod graph;
mod policies;
mod pool;
mod releases;
