// The fixed texts.

/// The output of `--help`.
pub const HELP: &[u8] = b"psxgpu_tool COMMAND [FILE] > output

Plays a recorded list of PlayStation graphics events, from FILE or standard input, and writes what the command asks for.

  play          the word of each read, as eight hexadecimal digits, and at the end the status
  vram          after the end, all cells of video memory, the low byte of each first
  shot          after the end, the picture that is shown, as a PPM
  frames        the same after each write of the start of the display area, and after the end, one after another
  frames marks  the same after each mark (GP1 3Fh) alone
  sums          for each picture of frames: event, width, height and SHA-256; after the end, the SHA-256 of all cells
  sums marks    the same at each mark
  list          for each packet: event, name, first word and area
  pixel X Y     for each packet that changes the cell: event, name, first word, value before and after
  report        after the end, a line for each tap: its kind and its numbers
  flat          the capture of what it does at the ports, without main memory and DMA, as it is played
  slim          a flat capture without the drawing that a later fill covers unseen
  cut N         a snapshot: the state after the first N events, 1 to 4294967295, and the records of the others
  demo N        plays N packets of its own, 1 to 100000, and reads nothing: the taps, the status, the sum of all cells
  --help        this text
  --version     the version of this program

Exit status: 0 all was written; 1 wrong arguments, or binary output to a terminal; 2 the capture is refused;
3 a read failed, or FILE cannot be opened; 4 a write failed; 5 no memory.
";

/// The output of `--version`.
pub const VERSION: &[u8] = b"psxgpu_tool 1.0.0
plays captures of versions 1, 2 and 3, and snapshots of version 1
proved with the logic dac8208d650f15bf of Rattle
";
