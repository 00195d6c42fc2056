//! The version of the program. It stands here alone: `dev/words_check.py` compares the manual, CHANGELOG.md and the kit with it.

/// What `--version` writes: the program's version, and the identity of the kit that it is proved with, as `rt version` prints it.
pub const VERSION: &str = "obix 0.9.0 (rattle-kit-13f logic dac8208d650f15bf)\n";
