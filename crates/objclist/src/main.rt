// The listing of the bundle on standard input, under the new reading of texts.
#![tactic(auto)]

use printing::descriptor::Descriptor;
use printing::program::list_whole;
use reads::text::Reading;

fn main() {
    list_whole(
        &mut Descriptor {
            fd: 0,
            ended: false,
        },
        &mut Descriptor {
            fd: 1,
            ended: false,
        },
        Reading::New,
        b"objclist: standard output\n",
        b"objclist: the bundle is refused\n",
    );
}
