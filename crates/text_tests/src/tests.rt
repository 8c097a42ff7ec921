// The tests by what they are about.

mod orders;
mod reader;
mod samples;
mod streams;
mod writer;
