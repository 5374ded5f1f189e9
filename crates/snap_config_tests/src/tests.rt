// What no clause says: the worked rows, printed words, and that calls succeed where memory is ample.
mod config;
mod filter;
mod patterns;
mod refused_words;
mod usual;
mod words;
