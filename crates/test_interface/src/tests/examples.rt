//! Examples of the libraries, to which their README files link, and one of a bounded history.
mod history;
mod net;
mod run;
mod session;
mod text;
