// Checks of journals of a folder in memory.

mod checks;
