// The case of a folder in memory: its public calls, and the turns at a desk.

mod calls;
mod folders;
mod turns;
