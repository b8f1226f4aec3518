// Help texts.

pub static EXAMPLES: &str = "\
Examples:
  simulate --lose rack:1 --rounds 100 --svg                    a rack burns: a picture
  simulate --lose node:3 --lose storage:8 --drain 7 --at 10    three things at once, in round 10
  simulate --nodes 12 --racks 4 --corrupt 50 --bandwidth 10    50 replicas are found corrupt";
