// The log reader: document 01, "a log reader keeps the log part together with the place of its next event".
#![tactic(auto)]

ghost use Rattle.std.specs.Prelude.{◌≡◌, ◌-◌, length};
ghost use Rattle.std.specs.Iterator.{at_most};
ghost use Rattle.logreader.specs.Events.{event_of, place_behind};

// A log part, and the place of its next event: 0 for a new reader.
#[derive(Drop)]
pub struct LogReader<'a> {
    pub src: &'a [u8],
    pub at: usize,
}

// The event at a place of a log; none where none is left.
pub fn event_at(s: &[u8], at: usize) -> Option<u8>
    ensures { result ≡ event_of s.now at }
{
    s.get(at).copied()
}

// The place after it, or the same at the end.
pub fn place_after(s: &[u8], at: usize) -> usize
    ensures { result ≡ place_behind s.now at }
{
    if at < s.len() { at + 1 } else { at }
}

impl<'a> Iterator for LogReader<'a> {
    type Item = u8;

    ghost next_gives = { λ r e r'. (e ≡ event_of r.src.now r.at) × (r'.src ≡ r.src) × (r'.at ≡ place_behind r.src.now r.at) };

    ghost remaining = { λ r. at_most (length r.src.now - r.at) };

    fn next(&mut self) -> Option<u8> {
        let event = event_at(self.src, self.at);
        self.at = place_after(self.src, self.at);
        event
    }
}

// The next event, and the reader advances one; at the end it stays there.
pub fn step<'s, 'a>(r: &'s mut LogReader<'a>) -> Option<u8>
    ensures { (result ≡ event_of r.old.src.now r.old.at) × ((r.new.src ≡ r.old.src) × (r.new.at ≡ place_behind r.old.src.now r.old.at)) }
{
    r.next()
}
