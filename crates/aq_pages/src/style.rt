//! What stands on each page before its title and behind the sheets. Nothing is fetched from elsewhere, and the
//! page says so itself. Verdicts differ by colour and by hatching.

/// The head of a page up to its title, with its style.
pub const HEAD: &[u8] = b"<!DOCTYPE html>
<html lang=\"en\">
<head>
<meta charset=\"utf-8\">
<meta name=\"viewport\" content=\"width=device-width, initial-scale=1\">
<meta http-equiv=\"Content-Security-Policy\" content=\"default-src 'none'; style-src 'unsafe-inline'\">
<style>
:root { color-scheme: light dark; --ink: #1c1c1c; --paper: #ffffff; --rule: #c8c8c8; --met: #1b6e3c; --notmet: #b3261e; --incomplete: #8a5a00; --plain: #2c5c8c }
@media (prefers-color-scheme: dark) { :root { --ink: #ececec; --paper: #151515; --rule: #555555; --met: #74d19b; --notmet: #ff8f85; --incomplete: #ffc76e; --plain: #93c0ea } }
@media print { :root { --ink: #000000; --paper: #ffffff; --rule: #999999; --met: #1b6e3c; --notmet: #b3261e; --incomplete: #8a5a00; --plain: #2c5c8c } svg { break-inside: avoid; max-width: 14cm } .table { overflow: visible } }
* { print-color-adjust: exact; -webkit-print-color-adjust: exact }
body { margin: 0 auto; max-width: 44rem; padding: 1rem; background: var(--paper); color: var(--ink); font: 1rem/1.4 system-ui, sans-serif }
h1 { font-size: 1.3rem; margin: 1rem 0 0.5rem; overflow-wrap: anywhere }
h1 small { display: block; font-size: 1.1rem; font-weight: normal }
h1 span { display: inline-block; margin-right: 0.4rem }
h2 { font-size: 1.1rem; margin: 1.25rem 0 0.5rem; overflow-wrap: anywhere }
a { color: var(--plain) }
a:focus-visible { outline: 3px solid var(--ink); outline-offset: 2px }
nav, .links { margin: 0.25rem 0 }
nav a, .links a { display: inline-block; margin-right: 1rem; padding: 0.7rem 0; overflow-wrap: anywhere }
td a { display: inline-block; padding: 0.35rem 0 }
.words { font-size: 0.9rem; overflow-wrap: anywhere }
.note { border-left: 0.3rem solid var(--incomplete); padding-left: 0.7rem; overflow-wrap: anywhere }
.table { overflow-x: auto; margin: 0.75rem 0 }
table { border-collapse: collapse; font-variant-numeric: tabular-nums; font-size: 0.9rem }
td, th { border-bottom: 1px solid var(--rule); padding: 0.2rem 0.6rem 0.2rem 0; text-align: left; white-space: nowrap }
svg { display: block; width: 100%; height: auto; margin: 0.75rem 0; fill: var(--ink); font: 24px system-ui, sans-serif }
svg.hatchings { position: absolute; width: 0; height: 0 }
.met rect { fill: var(--met) }
.notmet rect { fill: url(#stripes); stroke: var(--notmet); stroke-width: 3 }
.incomplete rect { fill: url(#dots); stroke: var(--incomplete); stroke-width: 3 }
.plain rect { fill: var(--plain) }
line { stroke: var(--ink); stroke-width: 2 }
.level line { stroke: var(--ink); stroke-width: 4; stroke-dasharray: 12 8 }
.level text { font-style: italic }
.hour, .end { font-size: 20px }
.hour { text-anchor: middle }
@media (max-width: 30rem) { svg { font-size: 30px } .hour { font-size: 28px } .end { font-size: 26px } }
.net, .full { fill: none; stroke-linecap: round; stroke-linejoin: round }
.net { stroke: var(--plain); stroke-width: 8 }
.full { stroke: var(--notmet); stroke-width: 4; stroke-dasharray: 2 10 }
.days line, .stem { stroke: var(--plain); stroke-width: 2; stroke-linecap: round }
.days circle, .ring { fill: var(--paper); stroke: var(--notmet); stroke-width: 2 }
.dots circle, .dot { fill: var(--ink) }
.decides { text-anchor: end; font-weight: bold }
@media print { nav, .links { display: none } a { color: inherit; text-decoration: none } }
</style>
";

/// The hatchings of the bars, and the foot of a page.
pub const FOOT: &[u8] = b"<svg class=\"hatchings\" aria-hidden=\"true\"><defs>
<pattern id=\"stripes\" width=\"12\" height=\"12\" patternUnits=\"userSpaceOnUse\" patternTransform=\"rotate(45)\"><path d=\"M3 0v12\" stroke=\"var(--notmet)\" stroke-width=\"6\"/></pattern>
<pattern id=\"dots\" width=\"12\" height=\"12\" patternUnits=\"userSpaceOnUse\"><circle cx=\"6\" cy=\"6\" r=\"3\" fill=\"var(--incomplete)\"/></pattern>
</defs></svg>
</body>
</html>
";
