// The server's number, which its answer OK contains (D-Bus Specification, "Authentication Protocol").
ghost use Rattle.std.specs.Prelude.{◌≡◌};
ghost use Rattle.keyring_program.specs.ServerNumber.{first_words, guid};

use kr_base::ConnId;
use service_hub::connection_worker::Salts;

// The first four words of stream 0 under this key. Connections are numbered from 1 on, so no connection
// has its salts from this stream.
fn first_words(seed: [u8; 32]) -> [u8; 16]
    ensures { result ≡ first_words seed }
{
    let mut words = Salts::new(seed, ConnId(0));
    let [a, b, c, d, e, f, g, h] = words.next();
    let [i, j, k, l, m, n, o, p] = words.next();
    [a, b, c, d, e, f, g, h, i, j, k, l, m, n, o, p]
}

/// The server's number under this seed, in hex. It takes no memory.
#[tactic(auto, unfolding(crate::specs::ServerNumber::guid))]
pub fn guid_of(seed: [u8; 32]) -> [u8; 32]
    ensures { result ≡ guid seed }
{
    let words = first_words(seed);
    let mut text = [0; 32];
    match hex::encode_to_slice(words, &mut text) {
        Ok(()) => text,
        Err(_) => unreachable!(),
    }
}
