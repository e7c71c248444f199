// A command's header and message under session keys, at a place of a lent buffer.
ghost use Rattle.std.specs.Prelude.{◌≡◌, ◌+◌, ◌≤◌, length};
ghost use Rattle.answers.specs.Answers.{number_told};
ghost use Rattle.octets.specs.Laid.{laid};
ghost use Rattle.shapes.specs.Command.{header_of};
ghost use Rattle.desk.specs.Wrap.{ordered as orderedBy, script, writes, wraps_command};
ghost use Rattle.message.specs.Answers.{Wrote};
ghost use Rattle.shapes.specs.declared.command.Command.TheVariants.{SetPin};

use answers::Refusal;
use message::Command;

// The command of an instruction byte; another than the three is 1.
pub fn ordered(instruction: u8) -> Result<Command, Refusal>
    ensures { result ≡ orderedBy instruction }
{
    match instruction {
        Command::SET_PIN => Ok(Command::SetPin),
        Command::SET_MARK => Ok(Command::SetMark),
        Command::CLEAR_MARK => Ok(Command::ClearMark),
        _ => Err(Refusal::Input),
    }
}

// Stores a command's header at a place.
fn store_header(c: Command, buffer: &mut [u8], place: usize)
    requires { place + 4 ≤ length buffer.old }
    ensures { buffer.new ≡ laid buffer.old place (header_of c) }
{
    buffer[place..place + 4].copy_from_slice(&c.header());
}

// A command's header and message with the data given, at a place from which they fit.
fn lay_script(
    c: Command,
    smi: [u8; 32],
    data: &[u8],
    buffer: &mut [u8],
    place: usize,
) -> Result<(), Refusal>
    requires { (length «data».now ≤ 255) × (place + length (script c smi «data».now) ≤ length buffer.old) }
    ensures { Wrote (writes (script c smi «data».now) buffer.old place) (number_told result) buffer.new }
{
    store_header(c, buffer, place);
    message::wrap(&smi, &c.header(), c.tag(), data, buffer, place + 4)
}

// The same at any place; or 3.
fn write_script(
    c: Command,
    smi: [u8; 32],
    data: &[u8],
    buffer: &mut [u8],
    place: usize,
) -> Result<(), Refusal>
    requires { length «data».now ≤ 255 }
    ensures { Wrote (writes (script c smi «data».now) buffer.old place) (number_told result) buffer.new }
{
    let n = data.len();
    let size = 10 + n + shapes::place_of(n);
    if buffer.len() < place || buffer.len() - place < size {
        return Err(Refusal::NoRoom);
    }
    lay_script(c, smi, data, buffer, place)
}

// The same with a PIN, enciphered under the SMC key; or 12.
fn write_pin(
    smi: [u8; 32],
    smc: [u8; 32],
    pin: &[u8],
    buffer: &mut [u8],
    place: usize,
) -> Result<(), Refusal>
    ensures { Wrote (wraps_command SetPin smi smc pin.now buffer.old place) (number_told result) buffer.new }
{
    let block = pin::encipher_pin(&smc, pin)?;
    write_script(Command::SetPin, smi, &block, buffer, place)
}

// Header and message of a command, at a place; or 12 or 3.
pub fn wrap_command(
    c: Command,
    smi: [u8; 32],
    smc: [u8; 32],
    pin: &[u8],
    buffer: &mut [u8],
    place: usize,
) -> Result<(), Refusal>
    ensures { Wrote (wraps_command c smi smc pin.now buffer.old place) (number_told result) buffer.new }
{
    match c {
        Command::SetPin => write_pin(smi, smc, pin, buffer, place),
        Command::SetMark | Command::ClearMark => write_script(c, smi, &[], buffer, place),
    }
}
