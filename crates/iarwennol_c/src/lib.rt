// The calls of `iarwennol` as a static library for C and Rust, each with the same name, promise and answer.
//
// A slice crosses as a pointer and a count, a table as three of them; no two may overlap, which is the caller's duty.
// `include/iarwennol.h` and `bindings/` declare these calls. `tests/staticlib` builds them as libiarwennol.a.
#![tactic(auto)]

ghost use Rattle.std.specs.Prelude.{[]};
ghost use Rattle.crtp.specs.Face as crtp;
ghost use Rattle.crtp.specs.Face.{lent, compressor_of, decompressor_of, open_compressor_lent, open_decompressor_lent, send_of};
ghost use Rattle.crtp.specs.Face.{request_of, receive_of, save_of, load_lent};
ghost use Rattle.endpoint.specs.Lent.{ends, endpoint_of, open_lent};
ghost use Rattle.endpoint.specs.Calls.{wire_of, radio_of, report_of};
ghost use Rattle.iarwennol.specs.Packed.{SentAs, GivenAs, AnsweredAs, SenderAs, ReceiverAs};

#[unsafe(no_mangle)]
pub extern "C" fn iarwennol_open_compressor(
    w: &mut [u32],
    h: &mut [u16],
    b: &mut [u8],
    n: u32,
    k: u32,
) -> u64
    ensures { SentAs (lent w.old h.old b.old)
        (lent w.new h.new b.new) result []
        (open_compressor_lent (lent w.old h.old b.old) n k) }
{
    iarwennol::iarwennol_open_compressor(w, h, b, n, k)
}

#[unsafe(no_mangle)]
pub extern "C" fn iarwennol_send(
    w: &mut [u32],
    h: &mut [u16],
    b: &mut [u8],
    p: &[u8],
    out: &mut [u8],
) -> u64
    ensures { SentAs (lent w.old h.old b.old)
        (lent w.new h.new b.new) result out.new
        (send_of (compressor_of (lent w.old h.old b.old)) p.now out.old) }
{
    iarwennol::iarwennol_send(w, h, b, p, out)
}

#[unsafe(no_mangle)]
pub extern "C" fn iarwennol_request(w: &mut [u32], h: &mut [u16], b: &mut [u8], s: &[u8]) -> u64
    ensures { SentAs (lent w.old h.old b.old)
        (lent w.new h.new b.new) result []
        (request_of (compressor_of (lent w.old h.old b.old)) s.now) }
{
    iarwennol::iarwennol_request(w, h, b, s)
}

#[unsafe(no_mangle)]
pub extern "C" fn iarwennol_open_decompressor(
    w: &mut [u32],
    h: &mut [u16],
    b: &mut [u8],
    n: u32,
    k: u32,
) -> u64
    ensures { GivenAs (lent w.old h.old b.old)
        (lent w.new h.new b.new) result []
        (open_decompressor_lent (lent w.old h.old b.old) n k) }
{
    iarwennol::iarwennol_open_decompressor(w, h, b, n, k)
}

#[unsafe(no_mangle)]
pub extern "C" fn iarwennol_receive(
    w: &mut [u32],
    h: &mut [u16],
    b: &mut [u8],
    kind: u32,
    s: &[u8],
    out: &mut [u8],
) -> u64
    ensures { GivenAs (lent w.old h.old b.old)
        (lent w.new h.new b.new) result out.new
        (receive_of (decompressor_of (lent w.old h.old b.old))
        kind s.now out.old) }
{
    iarwennol::iarwennol_receive(w, h, b, kind, s, out)
}

#[unsafe(no_mangle)]
pub extern "C" fn iarwennol_report(w: &[u32], h: &[u16], b: &[u8], out: &mut [u8]) -> u64
    ensures { GivenAs (lent w.now h.now b.now)
        (lent w.now h.now b.now) result out.new
        (crtp.report_of (decompressor_of (lent w.now h.now b.now)) out.old) }
{
    iarwennol::iarwennol_report(w, h, b, out)
}

#[unsafe(no_mangle)]
pub extern "C" fn iarwennol_save(w: &[u32], h: &[u16], b: &[u8], out: &mut [u8]) -> u64
    ensures { GivenAs (lent w.now h.now b.now)
        (lent w.now h.now b.now) result out.new
        (save_of (decompressor_of (lent w.now h.now b.now)) out.old) }
{
    iarwennol::iarwennol_save(w, h, b, out)
}

#[unsafe(no_mangle)]
pub extern "C" fn iarwennol_load(w: &mut [u32], h: &mut [u16], b: &mut [u8], s: &[u8]) -> u64
    ensures { GivenAs (lent w.old h.old b.old)
        (lent w.new h.new b.new) result []
        (load_lent (lent w.old h.old b.old) s.now) }
{
    iarwennol::iarwennol_load(w, h, b, s)
}

#[unsafe(no_mangle)]
pub extern "C" fn iarwennol_endpoint_open(
    cw: &mut [u32],
    ch: &mut [u16],
    cb: &mut [u8],
    dw: &mut [u32],
    dh: &mut [u16],
    db: &mut [u8],
    t: &mut [u32],
    n: u32,
    k: u32,
) -> u64
    ensures { AnsweredAs (ends (lent cw.old ch.old cb.old) (lent dw.old dh.old db.old) t.old)
        (ends (lent cw.new ch.new cb.new) (lent dw.new dh.new db.new) t.new) result []
        (open_lent (ends (lent cw.old ch.old cb.old) (lent dw.old dh.old db.old) t.old) n k) }
{
    iarwennol::iarwennol_endpoint_open(cw, ch, cb, dw, dh, db, t, n, k)
}

#[unsafe(no_mangle)]
pub extern "C" fn iarwennol_endpoint_wire(
    w: &mut [u32],
    h: &mut [u16],
    b: &mut [u8],
    t: &mut [u32],
    p: &[u8],
    out: &mut [u8],
) -> u64
    ensures { SenderAs (lent w.old h.old b.old)
        (lent w.new h.new b.new)
        t.old t.new result out.new
        (λ e. wire_of e p.now out.old) }
{
    iarwennol::iarwennol_endpoint_wire(w, h, b, t, p, out)
}

#[unsafe(no_mangle)]
pub extern "C" fn iarwennol_endpoint_radio(
    cw: &mut [u32],
    ch: &mut [u16],
    cb: &mut [u8],
    dw: &mut [u32],
    dh: &mut [u16],
    db: &mut [u8],
    t: &mut [u32],
    kind: u32,
    s: &[u8],
    out: &mut [u8],
) -> u64
    ensures { AnsweredAs (ends (lent cw.old ch.old cb.old) (lent dw.old dh.old db.old) t.old)
        (ends (lent cw.new ch.new cb.new) (lent dw.new dh.new db.new) t.new) result out.new
        (radio_of (endpoint_of (ends (lent cw.old ch.old cb.old) (lent dw.old dh.old db.old) t.old)) kind s.now out.old) }
{
    iarwennol::iarwennol_endpoint_radio(cw, ch, cb, dw, dh, db, t, kind, s, out)
}

#[unsafe(no_mangle)]
pub extern "C" fn iarwennol_endpoint_report(
    w: &[u32],
    h: &[u16],
    b: &[u8],
    t: &mut [u32],
    out: &mut [u8],
) -> u64
    ensures { ReceiverAs (lent w.now h.now b.now)
        (lent w.now h.now b.now)
        t.old t.new result out.new
        (λ e. report_of e out.old) }
{
    iarwennol::iarwennol_endpoint_report(w, h, b, t, out)
}
