mod counts;
mod draws;
mod flushes;
mod histories;
mod streams;
mod texts;
mod watching;
mod words;
