// The lengths of the lent buffers: RAM;
pub const RAM: usize = 65536;

// the sprite pixel store;
pub const STORE: usize = 4096;

// a drawn line;
pub const LINE: usize = 640;

// the export.
pub const EXPORT: usize = 477;
