//! What no clause says: the numbers of frames, what two vats say to each other over rings of any size, frames that are handed to a
//! seat, running out of memory, and that each call of an end or a seat can succeed.
mod acts;
mod by_name;
mod commands;
mod cores;
mod first;
mod flags;
mod long;
mod need;
mod need_of_seats;
mod pair;
mod said;
mod seated;
mod seats;
