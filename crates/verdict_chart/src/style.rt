// How the page looks, on a screen and on paper.
use stepper_lines::print::text;

// Where the blocks stand.
fn areas() {
    text(
        b"/* A row's label is as wide as --label columns. */\n\
        html { font: clamp(12px, 1.02vw, 18px)/1.15 Arial, 'Liberation Sans', Helvetica, sans-serif; color: #111; background: #fff; --row: 1.9rem; --mark: 1.25rem; --label: 2.8 }\n\
        body { margin: 1.5rem; display: grid; gap: 1rem .94%; grid-template: 'head head head legend legend'\n\
        'arithmetic logic unary move exchange' 'comparison comparison comparison comparison comparison'\n\
        'load load load load counts' 'store store store store store' / 98fr 88fr 48fr 98fr 78fr }\n\
        header { grid-area: head }\n\
        aside { grid-area: legend }\n\
        #arithmetic { grid-area: arithmetic; --cells: 7 }\n\
        #comparison { grid-area: comparison }\n\
        #binary-logic { grid-area: logic; --cells: 6 }\n\
        #unary { grid-area: unary; --cells: 2 }\n\
        #move { grid-area: move; --cells: 7 }\n\
        #exchange { grid-area: exchange; --cells: 5 }\n\
        #load { grid-area: load; padding-right: 9.2% }\n\
        #store { grid-area: store }\n\
        #counts { grid-area: counts; margin-left: -34% }\n",
    );
}

// Title, legend and captions; the heads of rows and columns.
fn texts() {
    text(
        b"h1 { margin: 0 0 .7rem; font-size: 2.2rem; line-height: 1 }\n\
        p { margin: 0 0 .5rem }\n\
        ul { margin: 0; padding: 0; list-style: none }\n\
        li { margin: 0 0 .15rem; padding-left: 2.2rem; text-indent: -2.2rem }\n\
        li b { display: inline-block; box-sizing: border-box; width: 1.7rem; margin-right: .22rem; border: 1px solid #555; text-align: center; text-indent: 0 }\n\
        table { width: 100%; table-layout: fixed; border-collapse: collapse }\n\
        caption { padding-bottom: .1rem; text-align: left; white-space: nowrap }\n\
        caption b { font-size: 1.25rem }\n\
        th { padding: 0; font-weight: 400; text-align: left; white-space: nowrap }\n\
        td { padding: 0; text-align: center }\n\
        thead td { width: calc(100% * var(--label) / (var(--label) + var(--cells))) }\n\
        #comparison thead td, #store thead td { width: 6.6% }\n\
        #load thead td { width: 9% }\n\
        thead th + th, thead td + th { text-align: center }\n\
        tr + tr th + th { font-size: .76rem }\n",
    );
}

// The cells, and the colours of the marks.
fn cells() {
    text(
        b"tbody td { height: var(--row); border: 1px solid #555; font-size: var(--mark); line-height: 1 }\n\
        #comparison td:nth-child(7n+9), #store td:nth-child(7n+9), #load td:nth-child(5n+7) { border-left: .25rem solid #111 }\n\
        #counts thead td { width: 32% }\n\
        #counts tbody { font-size: .9rem }\n\
        #counts thead th { padding-right: .5rem; text-align: right }\n\
        #counts td { height: auto; padding-right: .5rem; border: 0; font-size: inherit; line-height: inherit; text-align: right }\n\
        #counts tbody tr:last-child > * { border-top: 1px solid #555 }\n\
        .a, .u, .d, .r, .o { -webkit-print-color-adjust: exact; print-color-adjust: exact }\n\
        .a { background: #004d4d; color: #fff; font-weight: 700 }\n\
        /* Where fills are not printed a frame is left. */\n\
        td.a { outline: .18rem solid #004d4d; outline-offset: -.22rem }\n\
        .u { background: #f2f2f2 }\n\
        .d { background: #ffd98c }\n\
        .r { background: #bcdcf5 }\n\
        .o { background: #cfbde0 }\n",
    );
}

fn narrow_screen() {
    text(
        b"/* On a narrow screen each block scrolls by itself. */\n\
        @media screen and (max-width: 1100px) {\n\
        body { display: block; margin: 1rem }\n\
        div, aside { margin-top: 1.5rem; overflow-x: auto }\n\
        #load { padding: 0 }\n\
        #counts { margin-left: 0 }\n\
        table { width: auto }\n\
        tbody td, #counts td { min-width: 1.9rem }\n\
        th:first-child { position: sticky; left: 0; padding-right: .5rem; background: #fff }\n\
        }\n",
    );
}

fn paper() {
    text(
        b"/* A3 is one sheet. Paper with a side under 265 mm, as A4, is two: three operands have the second. */\n\
        @page { size: landscape; margin: 10mm }\n\
        @media print {\n\
        html { --row: 7mm; --mark: 5.7mm; font-size: 4.4mm }\n\
        body { margin: 0; padding: 1px }\n\
        div { break-inside: avoid }\n\
        }\n\
        @media print and (max-width: 265mm), print and (max-height: 265mm) {\n\
        html { --row: 9mm; --mark: 5mm; --label: 2.3; font-size: 3.25mm }\n\
        body { gap: 1rem 3%; grid-template: 'head head head head' 'arithmetic logic unary legend' 'move exchange . counts'\n\
        'comparison comparison comparison comparison' 'load load load load' 'store store store store' / 93fr 83fr 43fr 92fr }\n\
        #comparison { break-before: page }\n\
        header { margin-bottom: 3mm }\n\
        #move, #exchange, #counts { margin-top: 6mm }\n\
        li { margin-bottom: .6rem }\n\
        #counts tbody { font-size: 1rem; line-height: 1.5 }\n\
        #exchange { padding-right: 12% }\n\
        #load { padding-right: 26.7% }\n\
        #counts { margin-left: 0 }\n\
        }\n",
    );
}

pub fn style() {
    text(b"<style>\n");
    areas();
    texts();
    cells();
    narrow_screen();
    paper();
    text(b"</style>\n");
}
