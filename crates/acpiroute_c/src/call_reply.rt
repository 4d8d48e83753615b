//! What a call says of a reply, and the buffers that it fills.
ghost use Rattle.std.specs.Prelude.{◌≡◌, ◌≤◌, length};
ghost use Rattle.acpiroute_c.specs.Calls.{code_of, filled_by, put_into, sizes_of};

use acpiroute_lib::Reply;

/// The sizes of a reply, and its exit status.
#[repr(C)]
#[derive(Clone, Copy, Debug)]
pub struct CallReply {
    /// How many bytes the text for the output has.
    pub text_length: usize,
    /// How many bytes the line for the errors has.
    pub line_length: usize,
    /// The exit status of the program, from 0 to 4.
    pub status: u8,
}

fn sizes_of(said: &Reply) -> CallReply
    ensures { result ≡ sizes_of said.now }
{
    CallReply {
        text_length: said.text.len(),
        line_length: said.line.len(),
        status: said.status,
    }
}

/// Puts bytes at the start of a buffer.
pub(crate) fn put_into(bytes: &[u8], buffer: &mut [u8])
    requires { length bytes.now ≤ length buffer.old }
    ensures { buffer.new ≡ put_into bytes.now buffer.old }
{
    buffer[..bytes.len()].copy_from_slice(bytes);
}

/// Puts a reply into buffers, where both have room for it, and tells its sizes in any case.
pub(crate) fn give(said: &Reply, text: &mut [u8], line: &mut [u8], reply: &mut CallReply) -> u32
    ensures code { result ≡ code_of said.now (record { text = text.old; line = line.old; reply = reply.old }) }
    ensures after { record { text = text.new; line = line.new; reply = reply.new } ≡
        filled_by said.now (record { text = text.old; line = line.old; reply = reply.old }) }
{
    *reply = sizes_of(said);
    if text.len() < said.text.len() || line.len() < said.line.len() {
        return 1;
    }
    put_into(&said.text, text);
    put_into(&said.line, line);
    0
}
