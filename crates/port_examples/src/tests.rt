//! The tests, by what they name.
mod base;
mod file;
mod port;
