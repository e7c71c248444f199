// Script templates written (Wish 6): objects in order, as bytes that the caller lends, to bytes at a place of a lent buffer.
#![tactic(auto)]

ghost use Rattle.std.specs.Prelude.{◌≡◌, true, ◌++◌, ◌+◌, ◌*◌, ◌/◌, ◌<◌, ◌≤◌, leb, length, take, drop};
ghost use Rattle.answers.specs.Answers.{number_told};
ghost use Rattle.octets.specs.Numbers.{be};
ghost use Rattle.octets.specs.Laid.{laid};
ghost use Rattle.shapes.specs.Length.{largest, length_field};
ghost use Rattle.templates.specs.Grammar.{tag_bytes};
ghost use Rattle.scripts.specs.Writing.{lies as liesIn, all_lie, said, own_length, added_by, bytes_within, bytes_of, open_at, placed as is_placed, level_after, holder_after, objects_fault, fault_from, check_number, Wrote};
ghost use Rattle.scripts.specs.Inner.{Pair, Taken, firsts, from, Headed, Added, Within, Table, Stood, Laid, own_bytes, Fits, Ready};

use answers::Refusal;
use templates::{Holder, Object};

// The number of two bytes at a place, high first.
fn pair(b: &[u8], at: usize) -> usize
    requires { at + 2 ≤ length b.now }
    ensures { Pair b.now at result }
{
    octets::high_low(b[at], b[at + 1]) as usize
}

// Object i.
fn object_at(objects: &[u8], i: usize) -> Object
    requires { i * 10 + 10 ≤ length objects.now }
    ensures { Taken objects.now i result }
{
    let at = i * 10;
    let tag = pair(objects, at);
    let level = pair(objects, at + 2);
    let length = pair(objects, at + 4);
    let high = pair(objects, at + 6);
    let low = pair(objects, at + 8);
    Object {
        tag,
        level,
        place: high * 65536 + low,
        length,
    }
}

// Whether an object's data, if it has its own, lie in the source and are few enough.
fn lies(source: &[u8], o: Object) -> bool
    ensures { result ≡ liesIn source.now o }
{
    !templates::is_data(o.tag)
        || (o.length <= shapes::LARGEST
            && o.length <= source.len()
            && o.place <= source.len() - o.length)
}

// Whether those of all objects do.
fn all_lie(objects: &[u8], source: &[u8]) -> bool
    ensures { result ≡ all_lie source.now (said objects.now) }
{
    (0..objects.len() / 10).all(|i| lies(source, object_at(objects, i)))
}

// The length of an object's data: its own, or n.
fn own_length(o: Object, n: usize) -> usize
    ensures { result ≡ own_length o n }
{
    if templates::is_data(o.tag) {
        o.length
    } else {
        n
    }
}

// The size of tag and length field.
fn head_size(tag: usize, n: usize) -> usize
    ensures { Headed tag n result }
{
    templates::ahead(tag) + shapes::place_of(n)
}

// What an object of length n adds to the bytes of the objects in it.
fn added_by(o: Object, n: usize) -> usize
    requires { o.length < 65536 }
    ensures { Added o n result }
{
    head_size(o.tag, n) + own_length(o, 0)
}

// The bytes of those of the first n objects, from i on, that are deeper than a level, up to the next that is not.
fn bytes_within(objects: &[u8], lengths: &[usize], n: usize, i: usize, level: usize) -> usize
    requires { Within n objects.now i lengths.now }
    ensures { result ≡ bytes_within level (from n objects.now i) }
{
    let mut sum = 0;
    for k in i..n {
        let o = object_at(objects, k);
        if o.level <= level {
            return sum;
        }
        sum += added_by(o, lengths[k]);
    }
    sum
}

// How many of n objects are measured: an object takes two bytes or more, so that no template that may stand is longer.
fn measured(n: usize) -> usize
    ensures { result ≡ firsts n }
{
    n.min(192)
}

// Their lengths, from the last to the first.
fn lengths_of(objects: &[u8]) -> [usize; 192]
    ensures { Table objects.now result }
{
    let n = measured(objects.len() / 10);
    let mut lengths = [0usize; 192];
    for i in (0..n).rev() {
        let o = object_at(objects, i);
        lengths[i] = own_length(o, bytes_within(objects, &lengths, n, i + 1, o.level));
    }
    lengths
}

// The holder that is open at level l, where the innermost is at a level.
fn open_at(level: usize, holder: Holder, l: usize) -> Holder
    ensures { result ≡ open_at level holder l }
{
    if l == level { holder } else { Holder::Outer }
}

// Whether an object of length n may stand there.
fn placed(level: usize, holder: Holder, o: Object, n: usize) -> bool
    ensures { result ≡ is_placed level holder o n }
{
    if o.level == 0 || o.level > level {
        return false;
    }
    open_at(level, holder, o.level).stands(o.tag)
        && templates::length_fits(o.tag, o.length)
        && n <= shapes::LARGEST
}

// The level of the innermost holder after an object, and the holder.
fn level_after(o: Object) -> usize
    requires { o.level < 65536 }
    ensures { result ≡ level_after o }
{
    if templates::is_template(o.tag) {
        o.level + 1
    } else {
        o.level
    }
}

fn holder_after(level: usize, holder: Holder, o: Object) -> Holder
    ensures { result ≡ holder_after level holder o }
{
    if templates::is_template(o.tag) {
        Holder::within(o.tag)
    } else {
        open_at(level, holder, o.level).after()
    }
}

// Whether no object is at fault, or why the first that is.
fn fault_from(objects: &[u8], lengths: &[usize]) -> Result<(), Refusal>
    requires { Table objects.now lengths.now }
    ensures { number_told result ≡ fault_from 1 Holder.Outer 0 (said objects.now) }
{
    let n = objects.len() / 10;
    let mut level = 1;
    let mut holder = Holder::Outer;
    for i in 0..n {
        let o = object_at(objects, i);
        let fits = placed(level, holder, o, lengths[i]);
        templates::judge(fits, o.level, i)?;
        holder = holder_after(level, holder, o);
        level = level_after(o);
    }
    Ok(())
}

// Whether the objects can be written, whatever the buffer.
fn check(objects: &[u8], source: &[u8], lengths: &[usize]) -> Result<(), Refusal>
    requires { Table objects.now lengths.now }
    ensures { number_told result ≡ check_number objects.now source.now }
{
    if objects.len() % 10 != 0 || !all_lie(objects, source) {
        return Err(Refusal::Input);
    }
    if objects.len() / 10 == 0 {
        return Err(Refusal::BadObject);
    }
    fault_from(objects, lengths)
}

// Writes a tag at a place, and answers the next place.
fn write_tag(out: &mut [u8], at: usize, tag: usize) -> usize
    requires { Stood tag × (at + length (tag_bytes tag) ≤ length out.old) }
    ensures { Laid out.old at (tag_bytes tag) result out.new }
{
    if tag == templates::IDENTIFIER {
        out[at] = 0x9f;
        out[at + 1] = 0x18;
        return at + 2;
    }
    out[at] = tag as u8;
    at + 1
}

// Writes the length field of n.
fn write_length(out: &mut [u8], at: usize, n: usize) -> usize
    requires { (n ≤ largest) × (at + length (length_field n) ≤ length out.old) }
    ensures { Laid out.old at (length_field n) result out.new }
{
    if n > shapes::LARGEST_SHORT {
        out[at] = shapes::LONG_MARK as u8;
        out[at + 1] = n as u8;
        return at + 2;
    }
    out[at] = n as u8;
    at + 1
}

// Writes n bytes of the source.
fn write_data(out: &mut [u8], at: usize, source: &[u8], place: usize, n: usize) -> usize
    requires { (place + n ≤ length source.now) × (at + n ≤ length out.old) }
    ensures { Laid out.old at (take n (drop place source.now)) result out.new }
{
    out[at..at + n].copy_from_slice(&source[place..place + n]);
    at + n
}

// Writes an object of length n, as far as its own data.
fn write_object(out: &mut [u8], at: usize, source: &[u8], o: Object, n: usize) -> usize
    requires { Fits source.now o n (length out.old) at }
    ensures { Laid out.old at (own_bytes source.now o n) result out.new }
{
    let field = write_tag(out, at, o.tag);
    let place = write_length(out, field, n);
    if !templates::is_data(o.tag) {
        return place;
    }
    write_data(out, place, source, o.place, o.length)
}

// Writes all objects.
fn write_objects(out: &mut [u8], at: usize, objects: &[u8], lengths: &[usize], source: &[u8])
    requires { Ready objects.now source.now lengths.now (length out.old) at }
    ensures { out.new ≡ laid out.old at (bytes_of source.now (said objects.now)) }
{
    let n = objects.len() / 10;
    let mut place = at;
    for i in 0..n {
        let o = object_at(objects, i);
        place = write_object(out, place, source, o, lengths[i]);
    }
}

// Whether a size fits from a place on.
fn has_room(length: usize, at: usize, size: usize) -> bool
    ensures { result ≡ leb (at + size) length }
{
    at <= length && size <= length - at
}

// Writes the objects at a place of the buffer and answers how many bytes they are; or 1, 16, 17, 18 or 3, and writes nothing.
pub fn write_templates(
    objects: &[u8],
    source: &[u8],
    out: &mut [u8],
    at: usize,
) -> Result<usize, Refusal>
    ensures { Wrote objects.now source.now out.old at result out.new }
{
    let lengths = lengths_of(objects);
    check(objects, source, &lengths)?;
    let size = bytes_within(objects, &lengths, objects.len() / 10, 0, 0);
    if !has_room(out.len(), at, size) {
        return Err(Refusal::NoRoom);
    }
    write_objects(out, at, objects, &lengths, source);
    Ok(size)
}
