mod examples;
mod histories;
mod networks;
mod plans;
mod runs;
mod texts;
