// What users depend on: the calls of both ends, and every type and limit that they need. No crate below has to be named.
//
// Tables stand in the caller's memory. Each call is lent the table of its end as three slices, of numbers of 32, 16 and 8 bits, as
// long as `CompressorLayout` or `DecompressorLayout` says (docs/LAYOUT.md), and leaves in them the table for the next call. Slices
// of zeros are a table that is not open yet. Any numbers and any bytes may be handed in; slices that hold no sound table are
// refused, and so are slices of another length. An output holds the result at its front and keeps its bytes after it; a refused
// call leaves it as it was.
//
// Read first `open_compressor` and `open_decompressor`, then `send` and `receive`, then `report` and `request`, which ask for
// full headers after a loss that was too long, then `save` and `load`, which keep a decompressor over a restart: each contract
// names the definition that the answer equals. Then read `specs/Robust.antt`: over whole lists of these calls, what is not lost is
// rebuilt exactly (proved in `proofs/Robust.antt`).
#![tactic(auto)]

ghost use Rattle.std.specs.Prelude.{◌≡◌, []};
ghost use Rattle.compressor.specs.Send.{send_of};
ghost use Rattle.compressor.specs.Request.{request_of};
ghost use Rattle.decompressor.specs.Answer.{said};
ghost use Rattle.decompressor.specs.Receive.{receive_of};
ghost use Rattle.report.specs.Report.{report_of};
ghost use Rattle.saves.specs.Saves.{save_of};
ghost use Rattle.load.specs.Load.{load_lent};
ghost use Rattle.planes.specs.Planes.{lent};
ghost use Rattle.compressor_table.specs.Layout as compressing;
ghost use Rattle.compressor_table.specs.Calls as sending;
ghost use Rattle.decompressor_table.specs.Layout as decompressing;
ghost use Rattle.decompressor_table.specs.Calls as receiving;

// What the calls answer: an outcome, to be taken apart by a `match`. And where the numbers of a table stand.
pub use compressor::answer::Outcome as CompressorOutcome;
pub use compressor_table::layout::Layout as CompressorLayout;
pub use decompressor::answer::Outcome as DecompressorOutcome;
pub use decompressor_table::layout::Layout as DecompressorLayout;
pub use packet::refusal::Refusal;
pub use settings::Settings;

// The tables that definitions speak of. No call takes one.
pub use compressor::table::Table as CompressorTable;
pub use decompressor::table::Table as DecompressorTable;

// Opens a compressor for losses of up to n packets in a row and for k flows at a time; refused, the table stays.
pub fn open_compressor(
    w: &mut [u32],
    h: &mut [u16],
    b: &mut [u8],
    n: u32,
    k: u32,
) -> CompressorOutcome
    ensures { sending.Gives (lent w.old h.old b.old)
        (lent w.new h.new b.new) result []
        (sending.open_lent (lent w.old h.old b.old) n k) }
{
    compressor_places::open::open(w, h, b, n, k)
}

// Opens a decompressor; both ends of a link are opened with the same n and k.
pub fn open_decompressor(
    w: &mut [u32],
    h: &mut [u16],
    b: &mut [u8],
    n: u32,
    k: u32,
) -> DecompressorOutcome
    ensures { receiving.Gives (lent w.old h.old b.old)
        (lent w.new h.new b.new) result []
        (receiving.open_lent (lent w.old h.old b.old) n k) }
{
    decompressor_walk::open::open(w, h, b, n, k)
}

// The packet p as it goes on the link: its type and its bytes.
pub fn send(
    w: &mut [u32],
    h: &mut [u16],
    b: &mut [u8],
    p: &[u8],
    out: &mut [u8],
) -> CompressorOutcome
    ensures { sending.Gives (lent w.old h.old b.old)
        (lent w.new h.new b.new) result out.new
        (send_of (compressing.table_of (lent w.old h.old b.old)) p.now
        out.old) }
{
    send::send(w, h, b, p, out)
}

// What a report from the other end asks for: the contexts that it names get full headers again.
pub fn request(w: &mut [u32], h: &mut [u16], b: &mut [u8], s: &[u8]) -> CompressorOutcome
    ensures { sending.Gives (lent w.old h.old b.old)
        (lent w.new h.new b.new) result []
        (request_of (compressing.table_of (lent w.old h.old b.old)) s.now) }
{
    request::request(w, h, b, s)
}

// The packet that the bytes s, which came off the link with this type, stand for.
pub fn receive(
    w: &mut [u32],
    h: &mut [u16],
    b: &mut [u8],
    kind: u32,
    s: &[u8],
    out: &mut [u8],
) -> DecompressorOutcome
    ensures { receiving.Gives (lent w.old h.old b.old)
        (lent w.new h.new b.new) result out.new
        (receive_of (decompressing.table_of (lent w.old h.old b.old)) kind s.now
        out.old) }
{
    receive::receive(w, h, b, kind, s, out)
}

// What is to be sent back of the broken contexts; of none, nothing.
pub fn report(w: &[u32], h: &[u16], b: &[u8], out: &mut [u8]) -> DecompressorOutcome
    ensures { said result (decompressing.table_of (lent w.now h.now b.now)) out.new
        ≡ report_of (decompressing.table_of (lent w.now h.now b.now)) out.old }
{
    report::report(w, h, b, out)
}

// How many bytes a saved table has at most (`saves-longest`): an output as long as this is never too short for a save.
pub const LONGEST_FILE: usize = 7045;

// The decompressor's table as bytes, to be kept over a restart. The table stays as it is.
pub fn save(w: &[u32], h: &[u16], b: &[u8], out: &mut [u8]) -> DecompressorOutcome
    ensures { said result (decompressing.table_of (lent w.now h.now b.now)) out.new
        ≡ save_of (decompressing.table_of (lent w.now h.now b.now)) out.old }
{
    save::save(w, h, b, out)
}

// The table that was saved as the bytes s. They alone are judged, never what the slices hold, which stays where they are refused.
// What was rebuilt since the save is lost for the loaded table.
pub fn load(w: &mut [u32], h: &mut [u16], b: &mut [u8], s: &[u8]) -> DecompressorOutcome
    ensures { receiving.Gives (lent w.old h.old b.old)
        (lent w.new h.new b.new) result []
        (load_lent (lent w.old h.old b.old) s.now) }
{
    load::load(w, h, b, s)
}
