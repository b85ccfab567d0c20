// Lines, words and messages against tables.
mod lines;
mod load;
mod messages;
mod words;
