ghost use Rattle.std.specs.Prelude.{◌≡◌, true};
ghost use Rattle.network.specs.Network.{Sent, accepts};

use network::Network;

// Sends a record where there is room for it: a batch goes to all seats or to none, so each link was asked before.
pub(crate) fn post<T, N: Network<T>>(net: &mut N, link: usize, at: u64, item: T)
    requires { accepts (N.Network.meaning net.old) link at ≡ true }
    ensures { Sent (N.Network.meaning net.old) (N.Network.meaning net.new) link at item }
{
    match net.send(link, at, item) {
        Ok(()) => {}
        Err(_) => unreachable(),
    }
}
