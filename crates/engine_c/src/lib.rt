// The C face: the functions of include/lupiknam.h, exported under their names. Each calls `engine`'s function of the same name, where what it
// does is told, and promises the same clause. A crate of its own, since a static library is no library that others can name.
#![tactic(auto)]

mod bundle;
mod carried;
mod garbled;
mod party;
mod plain_call;
mod read;
mod two;
mod write;
