use std::io;

// A figure with its name.
pub fn field(rt: &impl Print, name: &[u8], n: u64) -> io::Result<()> {
    rt.write_all(name)?;
    rt.print(n)
}

pub fn least(a: u64, b: u64) -> u64 {
    if a < b { a } else { b }
}
