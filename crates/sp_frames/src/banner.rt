/// What a server sends before its first frame: the text `RUMPSP-0.4` and a line end.
pub const BANNER: [u8; 11] = *b"RUMPSP-0.4\n";
