//! What the programs print and say, and with which status they end.
mod changes;
mod drawing;
mod need;
mod options;
mod pictures;
mod playing;
mod streams;
mod traces;
