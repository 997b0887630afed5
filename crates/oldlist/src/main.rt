// The same as objclist under the old reading of texts, which is the Rust's (document 02, note 12).
#![tactic(auto)]

use printing::descriptor::Descriptor;
use printing::program::list_whole;
use reads::text::Reading;

fn main() {
    list_whole(
        &mut Descriptor {
            fd: 0,
            ended: false,
        },
        &mut Descriptor {
            fd: 1,
            ended: false,
        },
        Reading::Old,
        b"oldlist: standard output\n",
        b"oldlist: the bundle is refused\n",
    );
}
