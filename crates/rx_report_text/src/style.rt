/// How the page looks: on a screen, light or dark; narrow, as on a phone, where each cell has its label; on paper, where all
/// claims are unfolded, or the tables only where the box for it is ticked.
pub const STYLE: &str =
    ":root{color-scheme:light dark;--ink:#1b1f24;--soft:#57606a;--rule:#d0d7de;--paper:#fff;--tint:#f3f5f7;--plus:#2f7d57;--minus:#b3492f;--mark:#fff3c4}
@media (prefers-color-scheme:dark){:root{--ink:#e6e9ec;--soft:#9aa4ae;--rule:#3a424b;--paper:#15181c;--tint:#1f252b;--plus:#63b58a;--minus:#e08a70;--mark:#3d3413}}
*{box-sizing:border-box}
body{margin:0 auto;max-width:80rem;padding:1.25rem;background:var(--paper);color:var(--ink);font:16px/1.45 system-ui,sans-serif;font-variant-numeric:tabular-nums}
h1{margin:0;font-size:1.6rem}
h2{margin:2.25rem 0 .5rem;font-size:1.15rem;overflow-wrap:anywhere}
p{margin:.2rem 0;color:var(--soft);overflow-wrap:anywhere}
a{color:inherit}
pre,code{font:.9em/1.4 ui-monospace,monospace;white-space:pre-wrap;overflow-wrap:anywhere}
pre{padding:.6rem;background:var(--tint)}
.skip{position:absolute;left:-99rem}
.skip:focus{left:.5rem;top:.5rem;padding:.4rem .8rem;background:var(--paper)}
table{width:100%;margin-top:1.25rem;border-collapse:collapse}
caption{padding:.2rem 0;color:var(--soft);font-size:.85em;text-align:left}
th,td{padding:.4rem .5rem;border-bottom:1px solid var(--rule);text-align:right;vertical-align:top;font-weight:400}
thead th{color:var(--soft);font-size:.85em}
th:first-child{padding-left:0;text-align:left;overflow-wrap:anywhere}
tbody th,tfoot th,tfoot td{font-weight:600}
tfoot th,tfoot td{border-bottom:0}
td i{display:none}
td.bar{width:30%;padding-right:0;padding-left:0;text-align:left}
.providers thead th:last-child{text-align:center}
.signed td.bar{background:linear-gradient(var(--rule),var(--rule)) 50% 0/1px 100% no-repeat}
td.bar span{display:block;width:calc(var(--share)*.01%);height:.8rem;min-width:2px;margin-top:.35rem;border-radius:2px;background:var(--plus)}
.signed td.bar span{width:calc(var(--share)*.005%);margin-left:50%}
@supports (width:calc(sqrt(4)*1px)){
td.bar span{width:calc(sqrt(var(--share))*1%)}
.signed td.bar span{width:calc(sqrt(var(--share))*.5%)}
}
.signed td.bar span.minus{margin-right:50%;margin-left:auto;background:var(--minus)}
.sum{margin-top:1rem;color:var(--ink)}
.sum span{margin-right:1.1rem;white-space:nowrap}
.sum span:not(:last-child)::before{content:'';display:inline-block;width:.7rem;height:.7rem;margin-right:.4rem;border-radius:2px;background:var(--part)}
.shares{display:flex;height:.9rem;margin:.4rem 0 0;overflow:hidden;border-radius:3px}
.shares span{flex-basis:0;background:var(--part)}
.sum .paid,.shares .paid{--part:var(--plus)}
.sum .duplicate,.shares .duplicate{--part:#8a63b8}
.sum .reversed,.shares .reversed{--part:#3f7cc0}
.sum .rejected,.shares .rejected{--part:var(--minus)}
.rejects{width:auto}
.rejects th,.rejects td{text-align:left}
.rejects tr>:first-child,.rejects td.count{white-space:nowrap}
.rejects td.count{text-align:right}
.rejects thead th:nth-child(3){text-align:right}
.rejects:not(:has(tbody tr)){display:none}
.print{display:block;color:var(--soft);font-size:.85em}
form{display:flex;flex-wrap:wrap;gap:.4rem 1rem;margin-top:1.5rem;padding:.6rem;background:var(--tint);font-size:.9em}
input,select,button{font:inherit;color:inherit}
input:not([type=checkbox]),select{max-width:10rem;border:1px solid var(--soft);border-radius:3px;background:var(--paper)}
thead button{padding:0;border:0;background:none;text-align:inherit;text-decoration:underline dotted;cursor:pointer}
[aria-sort=ascending] button::after{content:' \\2191'}
[aria-sort=descending] button::after{content:' \\2193'}
tbody[hidden],section[hidden],.providers tr[hidden]{display:none}
.claims{margin-top:.4rem;font-size:.9em}
.claims th,.claims td{padding:.35rem .45rem;white-space:nowrap}
.claims th:first-child{padding-left:.25rem}
.claims th,.claims .answer,.claims .rx,.claims .number,.claims .date,.claims .member,.claims .product{text-align:left}
.claims thead th:nth-child(2){text-align:left}
.claims td.answer,.claims td.member{white-space:normal;overflow-wrap:anywhere}
.claims thead .quantity,.claims thead .days,.claims thead .pays,.claims thead .plan{text-align:right}
.answer span{display:block}
.rejected .answer{color:var(--minus)}
.duplicate .pays,.duplicate .plan{color:var(--soft);font-style:italic}
.claims tbody tr:first-child>*{border-bottom:0}
.claims .why td{padding:0 .25rem .3rem;text-align:left;white-space:normal}
tbody:target{background:var(--mark)}
summary{width:max-content;color:var(--soft);font-size:.85em;cursor:pointer}
details[open]{padding:.2rem .6rem .6rem;background:var(--tint)}
dl{display:flex;flex-wrap:wrap;gap:0 .5rem;margin:0;padding:.3rem 0}
dt{color:var(--soft)}
dd{margin:0 1rem 0 0;overflow-wrap:anywhere}
.origin{display:grid;grid-template-columns:max-content 1fr;gap:0 .8rem;font-size:.8em}
.origin dd{color:var(--soft)}
.claims .reasons{width:auto;margin:0}
.claims .reasons th,.claims .reasons td{padding:.1rem .6rem .1rem 0;border:0;text-align:left;font-weight:400;white-space:normal;overflow-wrap:anywhere}
.claims .reasons td.amount{text-align:right;white-space:nowrap}
.claims .reasons .part td{color:var(--soft)}
@media (max-width:44rem){
body{padding:.9rem}
.providers thead,.claims thead{position:absolute;left:-99rem}
.providers tr:not([hidden]){display:grid;grid-template-columns:repeat(4,1fr);padding:.6rem 0;border-bottom:1px solid var(--rule)}
.providers tfoot tr{border-bottom:0}
.providers th,.providers td{padding:.1rem 0;border:0;text-align:left}
.providers tr th{grid-column:1/4}
td i{display:block;color:var(--soft);font-size:.75rem;font-style:normal;font-weight:400}
.providers td.net{grid-column:4;grid-row:1;text-align:right}
.providers td.bar{grid-column:1/5;width:auto}
.providers tfoot td.bar{display:none}
.claims,.claims caption,.claims tbody:not([hidden]){display:block}
.claims tbody{padding:.4rem 0;border-bottom:1px solid var(--rule)}
.claims tbody>tr:first-child{display:grid;grid-template-columns:5.6rem 1fr auto;gap:.1rem .6rem}
.claims tbody>tr>*{padding:0;border:0}
.claims .plan{grid-area:1/3}
.claims .answer{grid-area:1/2}
.claims .pays{grid-area:2/3;color:var(--soft)}
.claims .rx{grid-area:2/2}
.claims .date{grid-area:2/1}
.claims .number{grid-area:3/1/3/3}
.claims .member{grid-area:3/3;text-align:right}
.claims .product{grid-area:4/1/4/3}
.claims .quantity{grid-area:4/3}
.claims .days{grid-area:5/3}
.claims td:not(:empty)::before{color:var(--soft);font-size:.8em}
.claims .rx:not(:empty)::before{content:'rx '}
.claims .number:not(:empty)::before{content:'authorization '}
.claims .product:not(:empty)::before{content:'product '}
.claims .quantity:not(:empty)::before{content:'quantity '}
.claims .days:not(:empty)::before{content:'days '}
.claims .pays:not(:empty)::before{content:'member pays '}
.claims .plan:not(:empty)::before{content:'plan pays '}
.claims .why,.claims .why>td{display:block}
.claims .reasons{display:table;width:100%}
.claims .reasons tbody:not([hidden]){display:block;padding:0;border:0}
.claims .reasons tbody>tr,.claims .reasons tbody>tr:first-child{display:grid;grid-template-columns:1fr auto;gap:0 .6rem;padding:.15rem 0}
.claims .reasons td:last-child{grid-column:1/3;color:var(--soft)}
}
@media print{
@page{margin:14mm;font:11px system-ui,sans-serif;@bottom-right{content:counter(page) ' of ' counter(pages)}}
:root{--ink:#000;--soft:#444;--rule:#999;--paper:#fff;--tint:#fff;--minus:#000}
body{max-width:none;padding:0;font-size:11px}
.skip{display:none}
body:has(#short:checked) .why,.print,form,summary{display:none}
details::details-content{display:block;content-visibility:visible;block-size:auto}
thead{display:table-header-group}
tbody{break-inside:avoid}
tbody:target{background:none}
td.bar span{print-color-adjust:exact}
.claims th,.claims td{padding:.35rem .25rem}
.claims td.answer{overflow-wrap:break-word}
.claims td.member{white-space:nowrap}
}
";
