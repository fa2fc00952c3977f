//! Who sends in a round.

ghost use Rattle.std.specs.Prelude.{◌≡◌, ◌≤◌, ◌<◌};
ghost use Rattle.stage_flow.specs.UnderWay.{sender_in};

use flow_net::Net;

/// Who sends in the round after so many: the source while used inputs are left, and then the gates in order.
pub(crate) fn sender(net: &Net, rounds: u32) -> u32
    requires gates { net.now.gates ≤ net.now.drivers }
    requires more { rounds < net.now.drivers }
    ensures { result ≡ sender_in net.now rounds }
{
    let inputs = net.drivers - net.gates;
    if rounds < inputs {
        0
    } else {
        rounds - inputs + 1
    }
}
