/// What the page's script does: it puts a form above the claims, or above the providers where a page has none, which finds them
/// by text, answer, code and amount, and makes headings buttons, which sort. It asks for nothing from outside, and takes no
/// text for markup.
pub(crate) const SCRIPT: &str = "(() => {
const claims = [...document.querySelectorAll('table.claims')];
const providers = document.getElementById('providers');
const make = (tag, text) => { const it = document.createElement(tag); it.append(text || ''); return it; };
const form = make('form');
form.setAttribute('role', 'search');
const field = (text, it) => { const label = make('label', text + ' '); label.append(it); form.append(label); return it; };
const choice = (text, words) => { const it = make('select'); it.append(new Option('any', '')); for (const word of words) it.append(new Option(word, word)); return field(text, it); };
const amount = text => { const it = field(text, make('input')); it.type = 'number'; it.step = '0.01'; return it; };
const value = cell => [...cell.childNodes].filter(node => node.nodeName !== 'I').map(node => node.textContent).join('');
const claim = body => {
const cells = [...body.rows[0].cells];
return { part: body, text: body.textContent, answer: body.className, codes: [...cells[1].querySelectorAll('b')].map(b => b.textContent), amount: cells[cells.length - 1].textContent };
};
const provider = row => ({ part: row, text: row.cells[0].textContent, amount: value(row.cells[5]) });
const all = claims.length ? claims.flatMap(table => [...table.tBodies].map(claim)) : [...providers.tBodies[0].rows].map(provider);
const find = field('Find', make('input'));
find.type = 'search';
const chosen = [];
if (claims.length) {
const answer = choice('Answer', ['paid', 'duplicate', 'reversed', 'rejected']);
const code = choice('Code', [...new Set(all.flatMap(one => one.codes))].sort());
chosen.push(one => !answer.value || one.answer === answer.value, one => !code.value || one.codes.includes(code.value));
}
const least = amount(claims.length ? 'Plan pays from' : 'Net from');
const most = amount('to');
const shown = make('output');
form.append(shown);
const fits = one => one.text.toLowerCase().includes(find.value.trim().toLowerCase()) && chosen.every(test => test(one))
&& (!least.value || one.amount !== '' && +one.amount >= +least.value) && (!most.value || one.amount !== '' && +one.amount <= +most.value);
const filter = () => {
let count = 0;
for (const one of all) { one.part.hidden = !fits(one); count += one.part.hidden ? 0 : 1; }
for (const table of claims) table.parentElement.hidden = [...table.tBodies].every(body => body.hidden);
shown.textContent = count + ' of ' + all.length + (claims.length ? ' claims' : ' providers');
};
form.addEventListener('input', filter);
form.addEventListener('submit', event => event.preventDefault());
filter();
if (claims.length) document.getElementById('claims').prepend(form); else providers.before(form);
const sorts = (table, parts, row) => {
const heads = [...table.tHead.rows[0].cells];
heads.forEach((head, at) => {
const [first] = parts();
if (!first || row(first).cells[at].className === 'bar') return;
const button = make('button', head.textContent);
button.type = 'button';
head.replaceChildren(button);
button.addEventListener('click', () => {
const down = head.getAttribute('aria-sort') === 'ascending';
for (const other of heads) other.removeAttribute('aria-sort');
head.setAttribute('aria-sort', down ? 'descending' : 'ascending');
const key = part => value(row(part).cells[at]);
const order = (a, b) => a === '' || b === '' || isNaN(a) || isNaN(b) ? a.localeCompare(b, 'en', { numeric: true }) : a - b;
const sorted = parts().sort((a, b) => (down ? -1 : 1) * order(key(a), key(b)));
sorted[0].parentElement.append(...sorted);
});
});
};
for (const table of claims) sorts(table, () => [...table.tBodies], body => body.rows[0]);
sorts(providers, () => [...providers.tBodies[0].rows], row => row);
})();
";

/// The meta element that allows this script by its SHA-256, the page's style, and nothing else.
pub const POLICY: &str =
    "<meta http-equiv=\"Content-Security-Policy\" content=\"default-src 'none'; style-src 'unsafe-inline'; script-src 'sha256-fE3CheEDXroq8et1BYc+tN1RCNmudFUM3oPmFF30JGk='\">\n";
