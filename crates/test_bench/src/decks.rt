//! Decks and texts that several tests run.

/// A deck of 72 bytes in which one processor puts a word on a channel and another takes it.
pub const HANDOFF: &str = "\
PP 0
0100 7405 1407 7205 0300
START 0100
PP 1
0200 7005 0300
START 0200
";

/// The text of that deck after 40 turns, 149 bytes.
pub const HANDOFF_TEXT: &str = "\
000000 PP00 CH05 ACN
000020 PP00 CH05 PUT 0007
000021 PP01 CH05 TAK 0007
PP00 P=0103 A=000007 STOPPED
PP01 P=0201 A=000007 STOPPED
CH05 ACTIVE EMPTY
";

/// The command line of that run.
pub const WORDS_OF_A_RUN: [&str; 4] = ["ppsim", "barrel", "--turns", "40"];

/// The text of the same deck on twenty processors after 80 turns, 149 bytes too.
pub const HANDOFF_ON_TWENTY: &str = "\
000000 PP00 CH05 ACN
000040 PP00 CH05 PUT 0007
000041 PP01 CH05 TAK 0007
PP00 P=0103 A=000007 STOPPED
PP01 P=0201 A=000007 STOPPED
CH05 ACTIVE EMPTY
";

/// The command line of that run.
pub const WORDS_OF_TWENTY: [&str; 6] = ["ppsim", "barrel", "--turns", "80", "--processors", "20"];

/// A deck in which processor 0 sends a block of four words over channel 5. Processor 1 waits until
/// the channel is active, takes three of them by a block and the fourth too, and disconnects.
pub const BLOCK: &str = "\
PP 0
0100 7405 1404 7305 0200 0300
0200 0011 0022 0033 0044
START 0100
PP 1
0100 7005 3460 1403 7105 0200 7505 0300
START 0100
";

/// A patience so long that no processor loses it while another works.
pub const LONG_PATIENCE: u32 = 4_294_967_295;

/// A word is lost, and another waits.
pub const LOST_AND_WAITING: &str = "\
PP 0
0100 7405 1407 7205 7505
0104 7605 7405 7205 0300
START 0100
";
