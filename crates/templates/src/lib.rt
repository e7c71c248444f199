// Script templates (Wish 6): tagged objects read from bytes, and written.
#![tactic(auto)]

ghost use Rattle.std.specs.Prelude.{◌≡◌, ◌+◌, ◌<◌, ◌≤◌, ◌^◌, length};
ghost use Rattle.templates.specs.Reading.{stands as standsIn, after as afterIn, within as withinOf, is_template, is_data, tag_in, ahead as ahead_of, head_of, length_fits, good, verdict, no_object, begun as begunRead, kept as kept_in, stopped as stoppedAt, object_read, read_all, reading};
ghost use Rattle.octets.specs.Numbers.{be_octets};
ghost use Rattle.templates.specs.Lent.{object_bytes, laid_objects};

use answers::Refusal;

// What objects stand in: the top or an e1; a 71 or 72 that holds nothing yet; one that holds something.
#[derive(Clone, Copy, Debug, PartialEq, Eq)]
pub enum Holder {
    Outer,
    Fresh,
    Begun,
}

// An object: its tag, its level, and the place and length of its data.
#[derive(Clone, Copy, Debug, PartialEq, Eq)]
pub struct Object {
    pub tag: usize,
    pub level: usize,
    pub place: usize,
    pub length: usize,
}

// Where the object at fault begins, and why it is refused.
#[derive(Clone, Copy, Debug, PartialEq, Eq)]
pub struct Fault {
    pub at: usize,
    pub why: Refusal,
}

// What was read: the objects in order and how many, and what is at fault.
#[derive(Clone, Copy, Debug, PartialEq, Eq)]
pub struct Read {
    pub objects: [Object; 32],
    pub count: usize,
    pub fault: Option<Fault>,
}

// Tag, length of the data, and size of tag and length field of the object that bytes begin with.
#[derive(Clone, Copy, Debug, PartialEq, Eq)]
pub struct Head {
    pub tag: usize,
    pub length: usize,
    pub size: usize,
}

pub const TEMPLATE_1: usize = 0x71;

pub const TEMPLATE_2: usize = 0x72;

pub const OUTER: usize = 0xe1;

pub const COMMAND: usize = 0x86;

pub const IDENTIFIER: usize = 0x9f18;

pub const IDENTIFIER_LENGTH: usize = 4;

pub const DEEPEST: usize = 4;

pub const MOST: usize = 32;

// Whether a tag's data are objects.
pub fn is_template(tag: usize) -> bool
    ensures { result ≡ is_template tag }
{
    tag == TEMPLATE_1 || tag == TEMPLATE_2 || tag == OUTER
}

// Whether a tag's data are its own.
pub fn is_data(tag: usize) -> bool
    ensures { result ≡ is_data tag }
{
    tag == IDENTIFIER || tag == COMMAND
}

impl Holder {
    // Whether a tag stands in it.
    pub fn stands(self, tag: usize) -> bool
        ensures { result ≡ standsIn self tag }
    {
        match self {
            Holder::Outer => is_template(tag),
            Holder::Fresh => is_data(tag),
            Holder::Begun => tag == COMMAND,
        }
    }

    // It, once it holds one object more.
    pub fn after(self) -> Holder
        ensures { result ≡ afterIn self }
    {
        match self {
            Holder::Outer => Holder::Outer,
            Holder::Fresh => Holder::Begun,
            Holder::Begun => Holder::Begun,
        }
    }

    // What a template of a tag is.
    pub fn within(tag: usize) -> Holder
        ensures { result ≡ withinOf tag }
    {
        if tag == OUTER {
            Holder::Outer
        } else {
            Holder::Fresh
        }
    }
}

// The tag that bytes begin with.
fn tag_in(xs: &[u8]) -> usize
    ensures { result ≡ tag_in xs.now }
{
    let first = shapes::byte_at(xs, 0);
    if first == 0x9f && shapes::byte_at(xs, 1) == 0x18 {
        IDENTIFIER
    } else {
        first
    }
}

// How many bytes of a tag stand ahead of its last.
pub fn ahead(tag: usize) -> usize
    ensures { result ≡ ahead_of tag }
{
    if tag == IDENTIFIER { 1 } else { 0 }
}

// The object that bytes begin with, as far as its length field.
fn head_of(xs: &[u8]) -> Head
    ensures { result ≡ head_of xs.now }
{
    let tag = tag_in(xs);
    let skipped = ahead(tag);
    let length = shapes::length_of(&xs[skipped..]);
    let size = skipped + shapes::place_of(length);
    Head { tag, length, size }
}

// "9f18 not of 4 bytes"
pub fn length_fits(tag: usize, length: usize) -> bool
    ensures { result ≡ length_fits tag length }
{
    tag != IDENTIFIER || length == IDENTIFIER_LENGTH
}

// Whether an object may stand in a holder that has n bytes left.
fn is_good(holder: Holder, head: Head, n: usize) -> bool
    requires { head.size ≤ 4 }
    ensures { result ≡ good holder head n }
{
    holder.stands(head.tag)
        && head.length <= shapes::LARGEST
        && head.size + head.length <= n
        && length_fits(head.tag, head.length)
}

// An object at a level, with c ahead of it: 16, 17, 18.
pub fn judge(fits: bool, level: usize, c: usize) -> Result<(), Refusal>
    ensures { result ≡ verdict fits level c }
{
    if !fits {
        return Err(Refusal::BadObject);
    }
    if level > DEEPEST {
        return Err(Refusal::TooDeep);
    }
    if c >= MOST {
        return Err(Refusal::TooMany);
    }
    Ok(())
}

impl Read {
    // Nothing so far.
    fn begun() -> Read
        ensures { result ≡ begunRead }
    {
        Read {
            objects: [Object {
                tag: 0,
                level: 0,
                place: 0,
                length: 0,
            }; 32],
            count: 0,
            fault: None,
        }
    }

    // One object more.
    fn kept(mut self, o: Object) -> Read
        requires { self.count < 32 }
        ensures { result ≡ kept_in o self }
    {
        let at = self.count;
        self.objects[at] = o;
        self.count = at + 1;
        self
    }

    // At fault at a place.
    fn stopped(mut self, why: Refusal, at: usize) -> Read
        ensures { result ≡ stoppedAt why at self }
    {
        self.fault = Some(Fault { at, why });
        self
    }
}

// The objects of a template, or of the top: xs are its bytes, the first of which is at the place.
#[cycle(read_object_read_template)]
fn read_template(xs: &[u8], holder: Holder, level: usize, place: usize, r: Read) -> Read
    requires { place + length xs.now < 2 ^ 64 }
    ensures { result ≡ read_all holder level place xs.now r }
{
    if xs.len() == 0 {
        return r;
    }
    let after = read_object(xs, holder, level, place, r);
    if after.fault.is_some() {
        return after;
    }
    let head = head_of(xs);
    let size = head.size + head.length;
    read_template(&xs[size..], holder.after(), level, place + size, after)
}

// The object that xs, which a holder has left, begin with, and the objects in it.
#[cycle(read_object_read_template)]
fn read_object(xs: &[u8], holder: Holder, level: usize, place: usize, r: Read) -> Read
    requires { place + length xs.now < 2 ^ 64 }
    ensures { result ≡ object_read read_all holder level place xs.now r }
{
    let head = head_of(xs);
    let Head { tag, length, size } = head;
    let fits = is_good(holder, head, xs.len());
    if let Err(why) = judge(fits, level, r.count) {
        return r.stopped(why, place);
    }
    let data = place + size;
    let kept = r.kept(Object {
        tag,
        level,
        place: data,
        length,
    });
    if !is_template(tag) {
        return kept;
    }
    let end = size + length;
    read_template(&xs[size..end], Holder::within(tag), level + 1, data, kept)
}

// The objects of script templates in order, or 16, 17 or 18 and where the first object at fault begins.
pub fn read_templates(xs: &[u8]) -> Read
    ensures { result ≡ reading xs.now }
{
    let begun = Read::begun();
    if xs.len() == 0 {
        return begun.stopped(Refusal::BadObject, 0);
    }
    read_template(xs, Holder::Outer, 1, 0, begun)
}

// The four octets of a place, high first.
pub fn lay_place(place: usize) -> [u8; 4]
    ensures { result ≡ be_octets 4 place }
{
    ((place % 0x1_0000_0000) as u32).to_be_bytes()
}

// An object as ten octets.
fn lay_object(o: Object) -> [u8; 10]
    ensures { result ≡ object_bytes o }
{
    let t = o.tag / 256;
    let l = o.level / 256;
    let n = o.length / 256;
    let p = lay_place(o.place);
    [
        (t % 256) as u8,
        (o.tag % 256) as u8,
        (l % 256) as u8,
        (o.level % 256) as u8,
        (n % 256) as u8,
        (o.length % 256) as u8,
        p[0],
        p[1],
        p[2],
        p[3],
    ]
}

// Objects as ten octets each.
pub fn lay_objects(objects: [Object; 32]) -> [u8; 320]
    ensures { result ≡ laid_objects objects }
{
    let mut out = [0u8; 320];
    for (i, object) in objects.iter().enumerate() {
        out[i * 10..i * 10 + 10].copy_from_slice(&lay_object(*object));
    }
    out
}
