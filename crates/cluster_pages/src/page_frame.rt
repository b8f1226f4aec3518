// The head and the end of a page.
use std::alloc::AllocError;

const BEFORE_TITLE: &str = "<!DOCTYPE html>\n<html lang=\"en\">\n<head>\n<meta charset=\"utf-8\">\n\
<meta name=\"viewport\" content=\"width=device-width, initial-scale=1\">\n";

const STYLE: &str = "<style>\n\
:root { color-scheme: light dark; }\n\
body { font: 15px/1.45 system-ui, sans-serif; margin: 0 auto; max-width: 72rem; padding: 1rem; }\n\
h1 { font-size: 1.5rem; margin: .2rem 0 1rem; }\n\
h2 { font-size: 1.15rem; margin: 2rem 0 .5rem; }\n\
dl { display: grid; gap: .6rem; grid-template-columns: repeat(auto-fit, minmax(9rem, 1fr)); \
margin: .6rem 0 0; }\n\
dl div { border: 1px solid #8885; border-radius: .4rem; padding: .5rem .7rem; }\n\
dt { font-size: .85rem; opacity: .75; }\n\
dd { font-size: 1.3rem; margin: 0; overflow-wrap: anywhere; }\n\
small { display: block; font-size: .85rem; opacity: .75; }\n\
ul { columns: 22rem; margin: 0; overflow-wrap: anywhere; padding-left: 1.2rem; }\n\
.table, .picture { overflow-x: auto; }\n\
.table { background: linear-gradient(90deg, Canvas 1rem, #0000 2rem) local, \
linear-gradient(270deg, Canvas 1rem, #0000 2rem) local, \
linear-gradient(90deg, #8888, #0000 .8rem), linear-gradient(270deg, #8888, #0000 .8rem); }\n\
.table:not(:has(td)) { display: none; }\n\
table { border-collapse: collapse; width: 100%; }\n\
th, td { border-bottom: 1px solid #8884; padding: .3rem .6rem .3rem 0; text-align: left; \
vertical-align: top; }\n\
td.n, th.n { font-variant-numeric: tabular-nums; text-align: right; }\n\
td.n, td.rack { white-space: nowrap; }\n\
td.n:first-child { width: 1%; }\n\
td.path { overflow-wrap: anywhere; min-width: 12rem; width: 60%; }\n\
td.path:first-child { width: 99%; }\n\
td.bar { min-width: 2.5rem; width: 30%; }\n\
svg { display: block; }\n\
.bar svg { height: .9rem; margin-top: .2rem; width: 100%; }\n\
svg.chart { border-bottom: 1px solid #8888; height: 12rem; width: 100%; }\n\
.picture svg { height: auto; min-width: 40rem; width: 100%; }\n\
.bar rect, .chart rect { fill: #3b7dd8; }\n\
.bar rect.all, .chart rect.all { fill: #8883; }\n\
.bar rect.bad { fill: #c8452f; }\n\
i { background: #3b7dd8; display: inline-block; height: .8em; width: .8em; }\n\
i.all { background: #8885; }\n\
details { margin: 1rem 0; }\n\
summary { cursor: pointer; }\n\
p.none { opacity: .75; }\n\
@media (max-width: 40rem) { table { font-size: .85rem; } td.bar { width: 15%; } }\n\
</style>\n</head>\n<body>\n";

/// Begins a page with its title.
pub fn write_head(text: &mut String, title: &str) -> Result<(), AllocError> {
    text.push_str(BEFORE_TITLE)?;
    write!(text, "<title>{title}</title>\n")?;
    text.push_str(STYLE)?;
    write!(text, "<h1>{title}</h1>\n")
}

pub fn write_foot(text: &mut String) -> Result<(), AllocError> {
    text.push_str("</body>\n</html>\n")
}
