// The colours of the lines, which people with red-green colour blindness can distinguish, and their
// dashes.
use crate::counts::Series;

/// How a line is drawn.
#[derive(Clone, Copy)]
pub struct Paint {
    pub colour: &'static str,
    /// In points of the picture. Levels have broad lines, so that they show behind another line of
    /// the same height.
    pub width: u32,
    /// The lengths of dashes and gaps; `none` for an unbroken line.
    pub dashes: &'static str,
}

const UNBROKEN: &str = "none";

const BROAD: u32 = 4;

const NARROW: u32 = 2;

pub fn paint_of(series: Series) -> Paint {
    let (colour, width, dashes) = match series {
        Series::Highest => ("#d55e00", BROAD, UNBROKEN),
        Series::VeryUnderReplicated => ("#e69f00", BROAD, UNBROKEN),
        Series::UnderReplicated => ("#0072b2", BROAD, UNBROKEN),
        Series::BadlyDistributed => ("#56b4e9", BROAD, UNBROKEN),
        Series::Missing => ("#000000", BROAD, UNBROKEN),
        Series::Pending => ("#009e73", NARROW, UNBROKEN),
        Series::Excess => ("#cc79a7", NARROW, UNBROKEN),
        Series::Corrupt => ("#cc79a7", NARROW, "7 4"),
        Series::Copies => ("#009e73", NARROW, "7 4"),
        Series::Deletes => ("#000000", NARROW, "2 3"),
        Series::Refused => ("#666666", NARROW, "2 3"),
    };
    Paint {
        colour,
        width,
        dashes,
    }
}

/// The name in the legend.
pub fn label_of(series: Series) -> &'static str {
    match series {
        Series::Highest => "highest urgency",
        Series::VeryUnderReplicated => "very under-replicated",
        Series::UnderReplicated => "under-replicated",
        Series::BadlyDistributed => "badly distributed",
        Series::Missing => "missing",
        Series::Pending => "copies on their way",
        Series::Excess => "replicas in excess",
        Series::Corrupt => "corrupt replicas",
        Series::Copies => "copies commanded",
        Series::Deletes => "deletes commanded",
        Series::Refused => "calls refused",
    }
}
