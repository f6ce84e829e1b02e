// The plan of the encoder's profile by the 2008 policy, as the plan program prints it.
#![tactic(auto)]

use std::io;

fn main(rt: HostRuntime) -> io::Result<()> {
    let mut image = [0u8; 546];
    // It has 546 bytes, so that the profile is not refused.
    let _ = encoder::write_image(&mut image);
    let mut out = [0u8; files::LARGE_BUFFER];
    let k = print::plan_text(&image, rules::POLICY_2008, &mut out);
    rt.write_all(&out[..k])
}
