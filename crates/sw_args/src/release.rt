//! Which program this is.

// The version and the toolchain's logic stand here alone; a part of them is taken by its name.
macro_rules! release {
    ($part:ident) => {
        part!($part, "0.9.0", "rattle logic dac8208d650f15bf")
    };
}

macro_rules! part {
    (version, $version:literal, $toolchain:literal) => {
        $version
    };
    (toolchain, $version:literal, $toolchain:literal) => {
        $toolchain
    };
    (lines, $version:literal, $toolchain:literal) => {
        concat!($version, "\n", $toolchain)
    };
}

/// The program's version.
pub const VERSION: &str = release!(version);

/// The logic of the toolchain that proves the program, as `rt version` tells it behind the name of the kit.
pub const TOOLCHAIN: &str = release!(toolchain);

/// What `--version` tells behind the program's name: the version, and the toolchain's logic in a line of its own.
pub(crate) const RELEASE: &str = release!(lines);
